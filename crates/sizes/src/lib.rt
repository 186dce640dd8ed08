//! The sizes of the lent tables: how many rows each has, how many cells a row has, and what stands where in one. specs/Sizes.antt has the
//! same numbers by the same names.
#![tactic(auto)]

// 01, "Table sizes": "64 predicates; 256 positions; 1,024 constants; 1,024 expressions; 256 rules; 4,096 thresholds [..]; provenance 1,024".

pub const PREDICATES: usize = 64;

pub const POSITIONS: usize = 256;

pub const CONSTANTS: usize = 1024;

pub const EXPRESSIONS: usize = 1024;

pub const RULES: usize = 256;

pub const THRESHOLDS: usize = 4096;

pub const RECORDS: usize = 1024;

// 01: "`constant` and `seed_interval` need at most 4,088 standing"; a run enters two more.
pub const THRESHOLDS_BEFORE_CALL: usize = 4088;

pub const THRESHOLDS_BEFORE_RUN: usize = THRESHOLDS - 2;

// 01: "seeds and rules with a context need at most 1,008 standing".
pub const RECORDS_BEFORE_CALL: usize = 1008;

// 01, refusal 1: "a name over 64 bytes [..], width over 16, nesting over 64 [..], or a rule over 16 slots, 32 bindings, 32 guards or 16 heads".

pub const NAME: usize = 64;

// The ids of a list.
pub const WIDTH: usize = 16;

pub const NESTING: usize = 64;

pub const SLOTS: usize = 16;

pub const BINDINGS: usize = 32;

pub const GUARDS: usize = 32;

pub const HEADS: usize = 16;

// What guards record of expressions: two for each.
pub const REFINEMENTS: usize = 2 * GUARDS;

// The row of a value: integrality, the interval's case and two ends, whether there is a list, its length, the reason, the ids, one unused.

pub const VALUE_CASE: usize = 1;

pub const VALUE_LOW: usize = 2;

pub const VALUE_HIGH: usize = 3;

pub const VALUE_KEPT: usize = 4;

pub const VALUE_LENGTH: usize = 5;

pub const VALUE_REASON: usize = 6;

pub const VALUE_IDS: usize = 7;

pub const VALUE_ROW: usize = 24;

// The row of a rule: its slots, whether it has a context, which, three lengths, and then bindings and guards of four cells, heads of two.

pub const RULE_MARK: usize = 1;

pub const RULE_CONTEXT: usize = 2;

pub const RULE_BINDING_COUNT: usize = 3;

pub const RULE_GUARD_COUNT: usize = 4;

pub const RULE_HEAD_COUNT: usize = 5;

pub const RULE_BINDINGS: usize = 6;

pub const RULE_GUARDS: usize = RULE_BINDINGS + 4 * BINDINGS;

pub const RULE_HEADS: usize = RULE_GUARDS + 4 * GUARDS;

pub const RULE_ROW: usize = RULE_HEADS + 2 * HEADS;

// The rows of the other tables.

// A predicate's first argument and arity.
pub const PREDICATE_ROW: usize = 2;

// A constant's kind and payload.
pub const CONSTANT_ROW: usize = 2;

// Kind, operator, left, right and nesting of an expression.
pub const NODE_ROW: usize = 5;

// An argument and a context.
pub const RECORD_ROW: usize = 2;

// How often the two sides of an argument's interval have grown.
pub const GROWTH_ROW: usize = 2;

// An expression's id, the case of an interval and its two ends.
pub const REFINEMENT_ROW: usize = 4;

// The first four cells of a value; of a slot before guards and after them; of all slots of a rule.
pub const BOUND_ROW: usize = 4;

pub const SLOT_ROW: usize = 2 * BOUND_ROW;

pub const BOUNDS_ROW: usize = SLOT_ROW * SLOTS;

// The words of the header: nine limits, eight counts, how many rows of eight tables stand, the context, the phase, a stop and its context.

pub const HEADER_COUNTED: usize = 9;

pub const HEADER_ROWS: usize = 17;

pub const HEADER_CONTEXT: usize = 25;

pub const HEADER_PHASE: usize = 27;

pub const HEADER_STOP: usize = 28;

pub const HEADER_STOP_CONTEXT: usize = 32;

pub const HEADER: usize = 34;

// The cells of the tables.

// The bytes of a line of the report: every line fits.
pub const LINE: usize = 256;

pub const PREDICATE_CELLS: usize = PREDICATE_ROW * PREDICATES;

pub const NAME_CELLS: usize = NAME * CONSTANTS;

pub const CONSTANT_CELLS: usize = CONSTANT_ROW * CONSTANTS;

pub const NODE_CELLS: usize = NODE_ROW * EXPRESSIONS;

pub const RULE_CELLS: usize = RULE_ROW * RULES;

pub const RECORD_CELLS: usize = RECORD_ROW * RECORDS;

// A value for each argument: seeds, current values, results.
pub const ARGUMENT_CELLS: usize = VALUE_ROW * POSITIONS;

pub const GROWTH_CELLS: usize = GROWTH_ROW * POSITIONS;

// A value for each slot of one rule.
pub const SLOT_CELLS: usize = VALUE_ROW * SLOTS;

pub const REFINEMENT_CELLS: usize = REFINEMENT_ROW * REFINEMENTS;

// The bounds of all rules' slots.
pub const BOUNDS_CELLS: usize = BOUNDS_ROW * RULES;

// What a run works in, and no later call reads. Of one rule: its slots before guards and after them, and what its guards record.
pub const LOCAL_CELLS: usize = 2 * SLOT_CELLS + REFINEMENT_CELLS;

// Of a pass: the candidates, the next values, and what a rule needs.
pub const PASS_CELLS: usize = 2 * ARGUMENT_CELLS + LOCAL_CELLS;

// Of a run: the bounds of the rules' slots, until the run completes, and what a pass needs.
pub const SCRATCH_CELLS: usize = BOUNDS_CELLS + PASS_CELLS;
