// What the two screens show of a ring.
use super::values::Sides;

// The conductor's: A and B, the number of nodes, which nodes run, bit s for node s; each node's key, and its leafset
// where it runs.
#[derive(Clone, Copy)]
pub struct ConductorScreen {
    pub sides: Sides,
    pub nodes: u32,
    pub running: u64,
    pub keys: [u32; 64],
    pub leafsets: [u64; 64],
}

// The technician's, but for the stamps and spares, which are lent, and the messages.
#[derive(Clone, Copy)]
pub struct TechnicianScreen {
    pub conductor: ConductorScreen,
    pub candidates: [u64; 64],
}
