// What a look at an area finds.

// A mark behind some fields, and how many they are.
#[derive(Drop)]
pub struct Read<M> {
    pub mark: M,
    pub count: usize,
}

// A draft: how many fields it has, and, under a tag that the book knows, a mark behind them.
#[derive(Drop)]
pub struct Draft<M> {
    pub mark: Option<M>,
    pub count: usize,
}

// How many records an area has, and its draft, if one is open.
#[derive(Drop)]
pub struct Seen<M> {
    pub count: usize,
    pub draft: Option<Draft<M>>,
}
