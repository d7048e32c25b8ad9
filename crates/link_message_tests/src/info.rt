//! Link info: number types, and calls that no case of the program read_links reaches. The expected
//! values come from outside this project's code.

mod data;
mod device_types;
mod kinds;
mod lists;
mod number_types;
mod tunnel_types;
