// The numbers of the commands, as the input has them and the lines print them; every number is one. Each looks at a, b
// and c of its six words.

// The record becomes the empty one.
pub const EMPTY: u32 = 0;

// The watched nodes become the bits of a, and from node 32 on those of b.
pub const WATCHED: u32 = 1;

// The silence of node a becomes b, its window c.
pub const VALUES: u32 = 2;

// Watches node a.
pub const WATCH: u32 = 3;

// A tick.
pub const TICK: u32 = 4;

// Every other number hears node a.
