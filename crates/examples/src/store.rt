//! A store of values by captures: those that mean the same share one value.

ghost use Rattle.std.specs.Prelude.{◌≡◌, ◌≢◌, ◌⊎◌, ℕ, List, length, None, Some, IfOk, IfErr, OnOk, OnErr, option_copied};
ghost use Rattle.link_message.specs.Body.{link_body};
ghost use Rattle.link_capture.specs.Captures.{first_fault, texts, IsLegal, ReachesFrameAt};

use link_capture::laws::{
    captures_are_counted, faults_are_at_frames, frames_are_independent, sameness_unfolds_by_frames,
    texts_determine_meanings,
};
use link_capture::{CaptureFault, FaultKind, check, normalize_bytes};
use std::alloc::Global;
use std::collections::HashMap;

/// A value that wasn't stored, and the reason.
#[derive(Debug, PartialEq, Eq, Drop)]
pub struct NotStored<V> {
    /// The capture's first fault, or out of memory.
    pub fault: CaptureFault,
    pub value: V,
}

/// Returns the normal text of a capture. Fails with the first fault of one that isn't legal, or
/// with `Memory` at a message.
fn normal_text(alloc: Global, capture: &[u8], limit: u32) -> Result<Vec<u8>, CaptureFault>
    ensures text { IfOk result (λ text. text.items ≡ texts link_body limit capture.now) }
    ensures legal { OnOk result (IsLegal link_body limit capture.now) }
    ensures fault { IfErr result (λ fault. fault.kind ≢ FaultKind.Memory
        → first_fault link_body limit capture.now ≡ Some fault) }
    ensures memory { IfErr result (λ fault. fault.kind ≡ FaultKind.Memory
        → IsLegal link_body limit capture.now × ReachesFrameAt link_body limit capture.now fault.offset) }
{
    faults_are_at_frames();
    check(capture, limit)?;
    captures_are_counted();
    let mut text = Vec::new(alloc);
    // A message has at least 16 bytes, so under a smaller limit only the empty capture is legal.
    if !capture.is_empty() {
        sameness_unfolds_by_frames();
        frames_are_independent();
        normalize_bytes(capture, limit, &mut text)?;
    }
    Ok(text)
}

/// Values stored by captures. The key of each is its capture's normal text, so captures that mean
/// the same share one value.
#[derive(Drop)]
pub struct Store<V> {
    limit: u32,
    entries: HashMap<Vec<u8>, V>,
}

impl<V> Store<V> {
    ghost use Rattle.link_capture.specs.Same.{SameCapture};
    ghost use Rattle.examples.specs.Stores.{limit_of, stored, HasUnder, SameElsewhere, IsUnchanged};
    ghost use Rattle.link_message.specs.Body.{link_body};

    /// Returns a store without a value. `limit` is the greatest length in bytes of a message in a
    /// capture, as read and as written. Under one of less than 16 only the empty capture is legal.
    /// Allocates nothing.
    pub fn new(alloc: Global, limit: u32) -> Store<V>
        ensures limit { limit_of result ≡ limit }
        ensures empty { (capture : List ℕ) → stored result capture ≡ None }
    {
        Store {
            limit,
            entries: HashMap::new(alloc),
        }
    }

    /// Stores a value for a capture, and returns the value that was stored for it before.
    ///
    /// # Errors
    ///
    /// The value that isn't stored, with the first fault of a capture that isn't legal; or with
    /// `Memory` if an allocation fails, at a message, or at the capture's end for the entry. The
    /// store is unchanged.
    pub fn insert(
        &mut self,
        alloc: Global,
        capture: &[u8],
        value: V,
    ) -> Result<Option<V>, NotStored<V>>
        ensures legal { OnOk result (IsLegal link_body (limit_of self.old) capture.now) }
        ensures old { IfOk result (λ old. old ≡ stored self.old capture.now) }
        // Captures with its normal text have the value now, and others what they had.
        ensures same { OnOk result (HasUnder self.new capture.now value) }
        ensures others { OnOk result (SameElsewhere self.old self.new capture.now) }
        // So each capture that means the same has the value.
        ensures meaning { OnOk result ((b : List ℕ) → SameCapture link_body (limit_of self.old) capture.now b
            → stored self.new b ≡ Some value) }

        ensures returned { IfErr result (λ refused. refused.value ≡ value) }
        ensures fault { IfErr result (λ refused. refused.fault.kind ≢ FaultKind.Memory
            → first_fault link_body (limit_of self.old) capture.now ≡ Some refused.fault) }
        ensures memory { IfErr result (λ refused. refused.fault.kind ≡ FaultKind.Memory
            → IsLegal link_body (limit_of self.old) capture.now) }
        ensures offset { IfErr result (λ refused. refused.fault.kind ≡ FaultKind.Memory
            → ReachesFrameAt link_body (limit_of self.old) capture.now refused.fault.offset
            ⊎ (refused.fault.offset ≡ length capture.now)) }
        ensures unchanged { OnErr result (IsUnchanged self.old self.new) }
        ensures limit { limit_of self.new ≡ limit_of self.old }
    {
        texts_determine_meanings();
        let text = match normal_text(alloc, capture, self.limit) {
            Ok(text) => text,
            Err(fault) => return Err(NotStored { fault, value }),
        };
        match self.entries.insert(text, value) {
            Ok(old) => Ok(old),
            Err(refused) => {
                let (_, value) = refused.value;
                Err(NotStored {
                    fault: CaptureFault {
                        kind: FaultKind::Memory,
                        offset: capture.len() as u64,
                    },
                    value,
                })
            }
        }
    }

    /// Returns the value for a capture, if there is one. Allocates the text to look up.
    ///
    /// # Errors
    ///
    /// The first fault of a capture that isn't legal; or `Memory` at a message if an allocation
    /// fails.
    pub fn get(&self, alloc: Global, capture: &[u8]) -> Result<Option<&V>, CaptureFault>
        ensures legal { OnOk result (IsLegal link_body (limit_of self.now) capture.now) }
        ensures value { IfOk result
            (λ found. option_copied found ≡ stored self.now capture.now) }
        ensures fault { IfErr result (λ fault. fault.kind ≢ FaultKind.Memory
            → first_fault link_body (limit_of self.now) capture.now ≡ Some fault) }
        ensures memory { IfErr result (λ fault. fault.kind ≡ FaultKind.Memory
            → IsLegal link_body (limit_of self.now) capture.now
            × ReachesFrameAt link_body (limit_of self.now) capture.now fault.offset) }
    {
        let text = normal_text(alloc, capture, self.limit)?;
        Ok(self.entries.get(text.as_slice()))
    }
}
