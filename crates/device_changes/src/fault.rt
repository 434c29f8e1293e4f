// Why changes are refused.

/// What is wrong with a row.
#[derive(Clone, Copy, Debug, PartialEq, Eq)]
pub enum RowFault {
    /// An earlier row has the same DevEUI.
    Repeated,
    /// No device has the DevEUI.
    UnknownDevEui,
    /// A device has the DevEUI already.
    DevEuiTaken,
    /// The table has no slot left for the device: there are as many imports in earlier rows, faulty
    /// ones included, as free slots.
    TableFull,
    /// The last JoinNonce is below the one that the device was granted.
    JoinNonceLowered,
}

/// A row that is refused. Rows are counted from 0.
#[derive(Clone, Copy, Debug, PartialEq, Eq)]
pub struct FaultyRow {
    pub row: usize,
    pub fault: RowFault,
}

/// Why changes were refused.
#[derive(Drop)]
pub enum Refused {
    /// These rows are faulty, and no others.
    Rows(Vec<FaultyRow>),
    OutOfMemory,
}
