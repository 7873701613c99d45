// The channel of Cai and Wong: what must be believed of it is in specs/.
#![tactic(auto)]

// The two sides of the channel.
#[derive(Clone, Copy)]
pub enum Side {
    Top,
    Bottom,
}
