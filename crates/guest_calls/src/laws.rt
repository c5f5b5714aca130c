//! A law of the system calls: the contract of a function that does nothing.
ghost use Rattle.guest_calls.specs.Laws.{EverySyscallIsLawful};

/// Each system call keeps what one has to keep, whatever it does: its events are few, light, and copies for its thread;
/// the copies touch at most the words that the bytes carried by read, write, readv or writev and a table of 1024 parts fill,
/// and two more for each event; where no page from the break up to its limit is mapped, none is afterwards; which threads
/// live, and the number of a new one, go by the answer; who has a reservation lives; a thread that could run and goes on can
/// run; and only write and writev put bytes out.
pub fn every_syscall_is_lawful()
    ensures lawful { EverySyscallIsLawful }
{}
