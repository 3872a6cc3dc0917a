// All spaces are absent, and anything else is the kind below.
#[derive(Clone, Copy)]
pub struct Blank<K> {
    pub below: K,
}

// The first of two kinds that reads; both have the first's width.
#[derive(Clone, Copy)]
pub struct OrElse<K, L> {
    pub first: K,
    pub second: L,
}

// Which of two kinds read, and its value.
#[derive(Drop, PartialEq, Eq, Debug)]
pub enum Either<V, W> {
    First(V),
    Second(W),
}

// One kind behind another, together at most 999 wide.
#[derive(Clone, Copy)]
pub struct Then<K, L> {
    pub first: K,
    pub second: L,
}

// The values of one kind behind another.
#[derive(Drop, PartialEq, Eq, Debug)]
pub struct Both<V, W> {
    pub front: V,
    pub back: W,
}

// A kind whose values are made of another's.
#[derive(Clone, Copy)]
pub struct Via<K, M> {
    pub below: K,
    pub rule: M,
}
