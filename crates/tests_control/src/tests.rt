mod source;
mod steps;
