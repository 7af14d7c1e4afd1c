//! What claims show. The function does nothing; its contract is a law.

ghost use Rattle.bpf_cert.specs.Laws.{CoveredIsSafe};

/// A program that claims cover is safe within their budget.
pub fn covered_law()
    ensures safe { CoveredIsSafe }
{}
