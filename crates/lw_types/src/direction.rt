// Which way a frame goes.

/// Which way a frame goes.
#[derive(Clone, Copy, PartialEq, Eq)]
pub enum Direction {
    /// From the device to the network.
    Up,
    /// From the network to the device.
    Down,
}
