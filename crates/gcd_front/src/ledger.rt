// What lies in the queue, and what its passes know.
use std::collections::LinkedList;

// A job as it lies in the queue: who sent it, and which job of this sender it is, from 1.
#[derive(Drop)]
pub struct Parcel<S> {
    pub sender: u8,
    pub number: u32,
    pub job: S,
}

// All that a sender has sent, whose mouth is shut. No value of it is made.
pub struct Account<S> {
    pub sender: u8,
    pub sent: LinkedList<S>,
}

// What a pass of the queue knows. No value of it is made.
pub struct Ledger<S> {
    // It is the pass of the intake, which alone takes parcels and makes mouths.
    pub takes: bool,
    // At the intake: what was taken, in order.
    pub taken: LinkedList<Parcel<S>>,
    // At the intake: how many mouths were made.
    pub made: u8,
    // The sender as whom the pass sends, while its mouth is open.
    pub sends: Option<u8>,
    // What that sender has sent, in order.
    pub sent: LinkedList<S>,
    // The accounts of shut mouths that it was told of.
    pub shut: LinkedList<Account<S>>,
}
