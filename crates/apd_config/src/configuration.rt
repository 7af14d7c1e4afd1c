//! The configuration of an access point.

ghost use Rattle.std.specs.Prelude.{◌≡◌, ◌≤◌, ◌<◌, ◌^◌, ◌%◌, ◌==◌, slice_index, vec_len};

use bpf_regions::Shapes;

/// The configuration of an access point.
#[derive(Debug, Drop)]
pub struct Configuration {
    /// The access point's address.
    pub bssid: [u8; 6],
    /// The network's name: at most 32 bytes of UTF-8.
    pub ssid: Vec<u8>,
    /// The rates of the Supported Rates element: 1 to 8 bytes (IEEE 802.11-2016, 9.4.2.3).
    pub rates: Vec<u8>,
    /// The first number of each worker's draw sequence, below 2^63.
    pub draw: u64,
    /// The maps' shapes; a map's number is its index.
    pub maps: Shapes,
    ghost ssid_fits: { vec_len ssid ≤ 32 },
    ghost some_rates: { 1 ≤ vec_len rates },
    ghost rates_fit: { vec_len rates ≤ 8 },
    ghost draw_fits: { draw < 2 ^ 63 },
}

impl Configuration {
    /// Whether the access point's address is a group address (the low bit of its first octet is set).
    pub fn is_for_group(&self) -> bool
        ensures { result ≡ (slice_index self.now.bssid 0 % 2 == 1) }
    {
        self.bssid[0] % 2 == 1
    }
}
