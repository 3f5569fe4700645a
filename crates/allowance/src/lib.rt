// An allowance: how many scorings all scans of a Save may make together, and how many they have made. What a scan that is charged to it answers and leaves
// stands in specs/, its laws and computed cases in proofs/. Nothing like it is in the original. Assumes nothing.
#![tactic(auto)]

// Lent by `&mut`: a scan adds its count to `used` and never writes `cap`.
#[repr(C)]
#[derive(Clone, Copy)]
pub struct Allowance {
    pub cap: u64,
    pub used: u64,
}
