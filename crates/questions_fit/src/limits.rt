// A scan's limit, from the bits that a question gives it in. Assumes nothing.

// The float of these bits. What lies above infinity is no limit: 2.0 stands for it, which the scan refuses.
pub fn limit_of(bits: u32) -> f32 {
    if 2139095040 < bits {
        2.0
    } else {
        f32::from_bits(bits)
    }
}
