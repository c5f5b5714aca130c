//! The negative answers: errno(3).

pub const ENOENT: u32 = u32::MAX - 1;

pub const EBADF: u32 = u32::MAX - 8;

pub const EAGAIN: u32 = u32::MAX - 10;

pub const ENOMEM: u32 = u32::MAX - 11;

pub const EACCES: u32 = u32::MAX - 12;

pub const EFAULT: u32 = u32::MAX - 13;

pub const EINVAL: u32 = u32::MAX - 21;

pub const EMFILE: u32 = u32::MAX - 23;

pub const ENOTTY: u32 = u32::MAX - 24;

pub const ESPIPE: u32 = u32::MAX - 28;

pub const ENAMETOOLONG: u32 = u32::MAX - 35;

pub const ENOSYS: u32 = u32::MAX - 37;

pub const ETIMEDOUT: u32 = u32::MAX - 109;
