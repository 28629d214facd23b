// The number that stands for a place which is not heard.
pub const NOT_HEARD: u16 = 256;
