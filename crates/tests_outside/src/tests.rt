mod control;
mod dialling;
mod host;
mod late;
mod paced;
mod system_host;
mod words;
