//! The numbers of the system calls on riscv32 (include/uapi/asm-generic/unistd.h of Linux). A name leaves out `64` and
//! `_time64`: `NR_FUTEX` is the number of `futex_time64`.

pub(crate) const NR_IOCTL: u32 = 29;

pub(crate) const NR_OPENAT: u32 = 56;

pub(crate) const NR_CLOSE: u32 = 57;

pub(crate) const NR_LLSEEK: u32 = 62;

pub(crate) const NR_READ: u32 = 63;

pub(crate) const NR_WRITE: u32 = 64;

pub(crate) const NR_READV: u32 = 65;

pub(crate) const NR_WRITEV: u32 = 66;

pub(crate) const NR_EXIT: u32 = 93;

pub(crate) const NR_EXIT_GROUP: u32 = 94;

pub(crate) const NR_SET_TID_ADDRESS: u32 = 96;

pub(crate) const NR_SET_ROBUST_LIST: u32 = 99;

pub(crate) const NR_SCHED_YIELD: u32 = 124;

pub(crate) const NR_RT_SIGACTION: u32 = 134;

pub(crate) const NR_RT_SIGPROCMASK: u32 = 135;

pub(crate) const NR_GETPID: u32 = 172;

pub(crate) const NR_GETTID: u32 = 178;

pub(crate) const NR_BRK: u32 = 214;

pub(crate) const NR_MUNMAP: u32 = 215;

pub(crate) const NR_CLONE: u32 = 220;

pub(crate) const NR_MMAP2: u32 = 222;

pub(crate) const NR_MPROTECT: u32 = 226;

pub(crate) const NR_MADVISE: u32 = 233;

pub(crate) const NR_CLOCK_GETTIME: u32 = 403;

pub(crate) const NR_CLOCK_NANOSLEEP: u32 = 407;

pub(crate) const NR_FUTEX: u32 = 422;
