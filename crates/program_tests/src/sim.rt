//! Tests of runs of clusters by the words `sim` and `run`: what is printed of them, also where a cluster is lost, and in
//! which order `sim` goes. The expected values come from the worked examples of the formats, or follow from the programs by hand.
#[cfg(test)]
mod losses;
#[cfg(test)]
mod picks;
#[cfg(test)]
mod runs;
#[cfg(test)]
mod talks;
