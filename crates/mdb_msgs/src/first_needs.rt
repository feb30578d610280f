//! What the first byte of a block of the controller tells.

use crate::need::Need;

/// The commands of a device that isn't followed.
const FOREIGN: [Need; 8] = [Need::Foreign; 8];

/// Those of the coin changer, from 08 on.
const CHANGER: [Need; 8] = [
    Need::Exactly(2),
    Need::Exactly(2),
    Need::Exactly(2),
    Need::Exactly(2),
    Need::Exactly(6),
    Need::Exactly(3),
    Need::Outside,
    Need::More,
];

/// Those of a cashless reader, from 10 or 60 on.
const READER: [Need; 8] = [
    Need::Exactly(2),
    Need::More,
    Need::Exactly(2),
    Need::More,
    Need::More,
    Need::Outside,
    Need::Outside,
    Need::More,
];

/// Those of the bill validator, from 30 on.
const BILL: [Need; 8] = [
    Need::Exactly(2),
    Need::Exactly(2),
    Need::Exactly(4),
    Need::Exactly(2),
    Need::Exactly(6),
    Need::Exactly(3),
    Need::Exactly(2),
    Need::More,
];

/// What a block needs by its first byte alone: by the address, its five high bits, and the command,
/// its three low ones (MDB/ICP 4.3, addresses of peripherals).
pub(crate) static FIRST: [[Need; 8]; 32] = [
    FOREIGN, CHANGER, READER, FOREIGN, FOREIGN, FOREIGN, BILL, FOREIGN, FOREIGN, FOREIGN, FOREIGN,
    FOREIGN, READER, FOREIGN, FOREIGN, FOREIGN, FOREIGN, FOREIGN, FOREIGN, FOREIGN, FOREIGN,
    FOREIGN, FOREIGN, FOREIGN, FOREIGN, FOREIGN, FOREIGN, FOREIGN, FOREIGN, FOREIGN, FOREIGN,
    FOREIGN,
];
