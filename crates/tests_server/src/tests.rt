mod control;
mod gates;
mod histories;
mod hosts;
mod statuses;
mod tape;
