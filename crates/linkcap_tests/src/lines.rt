//! Lines compared with other sources: the names of numbers and types with the typed values, by
//! laws, and values with an independent implementation, by tests.

#[cfg(test)]
mod arguments;
#[cfg(test)]
mod bodies;
#[cfg(test)]
mod exact;
#[cfg(test)]
mod filter;
#[cfg(test)]
mod first_bytes;
pub mod laws;
#[cfg(test)]
mod raw;
#[cfg(test)]
mod showing;
#[cfg(test)]
mod values;
