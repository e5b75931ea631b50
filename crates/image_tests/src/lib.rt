// Tests of image::write and image::read. Every expected value is worked out by hand.

#![tactic(auto)]

#[cfg(test)]
mod fields;
#[cfg(test)]
mod malformed;
#[cfg(test)]
mod read_refusals;
#[cfg(test)]
mod samples;
#[cfg(test)]
mod sizes;
#[cfg(test)]
mod write_refusals;
