// How long a word may be, how many operands, steps, nodes and rows there may be, and the largest label.

// "the word has more than 4,096 bytes"
pub const LONGEST_WORD: usize = 4096;

// "257 pending operands"
pub const MOST_PENDING: usize = 256;

// "the 256th step"
pub const MOST_STEPS: usize = 255;

// The nodes of a tree query: one, and one more for each step.
pub const MOST_NODES: usize = 256;

// The rows of a document table: "two lists of equal length, 1 to 1,024".
pub const MOST_ROWS: usize = 1024;

// "Labels are 0 to 65,535, so the largest sign is 65,544": label L is the sign 9 + L.
pub const LARGEST_LABEL: u32 = 65535;
