//! Calls that allocate, with allocations that may be refused. With enough memory each call returns
//! its value. `tools/refused/run.py` runs them with each allocation refused in turn: a call then
//! returns that value or out of memory, and leaves the state that its documentation says.

mod links;
mod measures;
mod requests;
