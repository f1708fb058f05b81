mod controlled;
mod ends;
mod faults;
mod moving;
mod worlds;
