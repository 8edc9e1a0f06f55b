//! How the machines of a fleet stand.

/// How they stand, and which of them are moved.
#[derive(Clone, Copy)]
pub enum FleetMode {
    /// There is one machine.
    Alone,
    /// Their printers are alike but for the device, and no definition is open. The others stand
    /// where the first does, which alone is moved; the macros of each are its own.
    Together,
    /// So it is, but a definition is open on each. Each is moved by itself, and where the first
    /// stands they all do.
    Defining,
    /// Each is moved by itself.
    Apart,
}
