//! What the first bytes of a block tell.

/// What the first bytes of a controller's block show about its length.
#[derive(Clone, Copy, PartialEq, Eq, Debug)]
pub enum Need {
    /// Nothing yet: the second byte, the subcommand, decides.
    More,
    /// The block has this many bytes, its sum included.
    Exactly(usize),
    /// The block is for another device, or has an EXPANSION that this profile doesn't know.
    Foreign,
    /// The block is for a device of this profile, but the profile leaves out the command.
    Outside,
}
