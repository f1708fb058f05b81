mod blocks;
mod clock;
mod device;
mod ends;
mod pool;
mod recorders;
mod types;
