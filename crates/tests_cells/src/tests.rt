mod crowded;
mod full;
mod lane;
mod numbered;
mod threads;
