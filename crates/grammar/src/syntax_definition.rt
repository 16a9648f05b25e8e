/// How many of the scopes on the stack a context clears.
#[derive(Clone, Copy, PartialEq, Eq, Debug)]
pub enum ClearAmount {
    TopN(u64),
    All,
}
