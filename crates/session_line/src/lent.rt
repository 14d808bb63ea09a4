// What a session lends for its commands.

// The memory of the held tree: its nodes, their own sets, its sets and those before the update.
#[derive(Drop)]
pub struct Lent<'a> {
    pub held: &'a mut [u8],
    pub held_owns: &'a mut [u64],
    pub sets: &'a mut [u64],
    pub earlier: &'a mut [u64],
}

// The nodes of a command that have come: their productions, and their own sets with the words for its points behind them.
#[derive(Drop)]
pub struct Parts<'a> {
    pub nodes: &'a mut [u8],
    pub owns: &'a mut [u64],
}
