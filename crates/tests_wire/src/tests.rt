mod frames;
mod items;
