// What the parts of one consumer share. It is lent to each call.
#[derive(Drop)]
pub struct Board<T> {
    // find: the place of the best match so far
    pub best_found: usize,
    // try-reduce: a fault was met
    pub full: bool,
    // collect: where the items are laid
    pub slots: Vec<T>,
}
