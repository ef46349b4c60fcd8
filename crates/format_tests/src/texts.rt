//! Tests of the texts: programs for the assembler, texts of systems, and the workload. The expected values come from the
//! tables of the formats, from the worked examples, and from another program.
#[cfg(test)]
mod assembler;
#[cfg(test)]
mod elf_blocks;
#[cfg(test)]
mod load;
#[cfg(test)]
mod printing;
#[cfg(test)]
mod reading;
