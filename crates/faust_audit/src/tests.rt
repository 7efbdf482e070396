//! What is found of short runs, worked out by hand.
mod departures;
mod premises;
