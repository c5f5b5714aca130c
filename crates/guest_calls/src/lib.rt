//! System calls: those of the table in specs/Table.antt, each modelled on its Linux manual page, with its number
//! on riscv32. Any other number answers that there is no such call.
//!
//! A call is seen as what it makes of the kernel's state (guest_kernel), the guest's memory and its reservations.
#![tactic(auto)]

mod caller;
mod clock;
mod clone;
mod dispatch;
mod files;
mod futex;
mod laws;
mod numbers;
mod operation;
mod pages;
mod paths;
mod table;
mod threads;
mod vectors;
mod writes;

pub use dispatch::syscall;
pub use laws::every_syscall_is_lawful;
