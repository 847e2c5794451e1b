//! Calls that may be refused memory: they are made with ever more of it left, by taking all that the process can have.

pub mod blocking;
pub mod cases;
pub mod making;
pub mod played;
pub mod rows;
pub mod scene;
pub mod scene_rows;
