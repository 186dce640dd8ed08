//! The tables of a job, which a later fresh store finds as the last one left them.

#[derive(Drop)]
pub struct Tables {
    pub names: [u8; sizes::NAME_CELLS],
    pub constants: [u32; sizes::CONSTANT_CELLS],
    pub order: [u32; sizes::CONSTANTS],
    pub thresholds: [i32; sizes::THRESHOLDS],
    pub nodes: [u64; sizes::NODE_CELLS],
    pub predicates: [u32; sizes::PREDICATE_CELLS],
    pub seeds: [u32; sizes::ARGUMENT_CELLS],
    pub records: [u32; sizes::RECORD_CELLS],
    pub rules: [u32; sizes::RULE_CELLS],
    pub arguments: [u32; sizes::ARGUMENT_CELLS],
    pub slots: [u32; sizes::BOUNDS_CELLS],
    pub current: [u32; sizes::ARGUMENT_CELLS],
    pub growth: [u32; sizes::GROWTH_CELLS],
    pub scratch: [u32; sizes::SCRATCH_CELLS],
}

impl Tables {
    pub fn new() -> Tables {
        Tables {
            names: [0; sizes::NAME_CELLS],
            constants: [0; sizes::CONSTANT_CELLS],
            order: [0; sizes::CONSTANTS],
            thresholds: [0; sizes::THRESHOLDS],
            nodes: [0; sizes::NODE_CELLS],
            predicates: [0; sizes::PREDICATE_CELLS],
            seeds: [0; sizes::ARGUMENT_CELLS],
            records: [0; sizes::RECORD_CELLS],
            rules: [0; sizes::RULE_CELLS],
            arguments: [0; sizes::ARGUMENT_CELLS],
            slots: [0; sizes::BOUNDS_CELLS],
            current: [0; sizes::ARGUMENT_CELLS],
            growth: [0; sizes::GROWTH_CELLS],
            scratch: [0; sizes::SCRATCH_CELLS],
        }
    }
}
