//! The gate and the doors: seats that step in an order, seats in threads, and doors.

mod doors;
pub(crate) mod given;
pub(crate) mod seating;
mod seats;
mod threads;
