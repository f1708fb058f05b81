mod across;
mod again;
mod blocks;
mod former;
mod random;
