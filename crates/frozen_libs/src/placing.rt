//! The values of a host file.

// What is around a field.
#[derive(Clone, Copy)]
pub(crate) enum Around {
    // The table at the top.
    Top,
    // A table below it, where up to so many names may lead from the table around it to a function of the host.
    Below(u8),
}
