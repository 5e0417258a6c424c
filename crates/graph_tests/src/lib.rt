//! Tests of the readers of graphs by their public calls, mostly on pools that moved: which pools are graphs, what their
//! fields store, which objects are referenced, and where pointers lead.
#![tactic(auto)]

#[cfg(test)]
mod indexed;
#[cfg(test)]
mod mixed;
#[cfg(test)]
mod moved;
#[cfg(test)]
mod pools;
