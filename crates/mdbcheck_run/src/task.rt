//! The tasks of the program.

use mdb_bus::{Levels, Profile, Scope};
use mdb_follow::Goal;
use mdb_msgs::DeviceSet;
use mdb_text::Form;

/// What is done with the text on standard input.
#[derive(Drop)]
pub enum Task {
    /// The verdict on a recording that is taken so, in this form. These feature levels (Z2) of the
    /// readers are known from elsewhere.
    Check(Scope, Levels, Form),
    /// The stretches and the faults of a recording that is taken so, in this form.
    Survey(Scope, Form),
    /// The acts of a recording that is taken so, in this form.
    Show(Scope, Form),
    /// The rows of a recording from power-on, after the marks of a run that leads to this goal. It
    /// is followed by this profile, and these devices are left out.
    Explain(Goal, Profile, DeviceSet),
    /// The verdict on the run of a recording from power-on with the marks before it, in this form.
    /// It is followed by this profile, and these devices are left out.
    Replay(Profile, DeviceSet, Form),
}
