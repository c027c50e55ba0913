// The counts of a job's records. The definitions are in specs/, the theorems in proofs/.
#![tactic(auto)]

// How many records of each of the kinds 1 to 5 a job has, and how many of its widths are of layer 0: the others count as layer 1.
#[derive(Clone, Copy)]
pub struct Counts {
    pub widths: usize,
    pub layer0: usize,
    pub sizes: usize,
    pub stages: usize,
    pub segments: usize,
    pub repeaters: usize,
}
