// What a listener keeps: which nodes are watched, bit s for node s; the silence and the window of each.
#[derive(Clone, Copy)]
pub struct ListenerRecord {
    pub watched: u64,
    pub silences: [u8; 64],
    pub windows: [u8; 64],
}
