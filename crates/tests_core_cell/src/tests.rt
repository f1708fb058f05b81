mod asking;
mod recorder;
mod scene;
mod steps;
mod threads;
