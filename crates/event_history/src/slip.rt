//! Room for an event.
use crate::row::Row;
use std::alloc::{AllocError, Global};
use std::boxed::Box;

/// Room for one event, made before the step that fills it.
#[derive(Drop)]
pub struct Slip {
    pub(crate) room: Box<Row>,
}

impl Slip {
    /// Makes room for one event.
    pub fn new(alloc: Global) -> Result<Slip, AllocError> {
        Ok(Slip {
            room: Box::new(alloc, Row::room(alloc))?,
        })
    }
}
