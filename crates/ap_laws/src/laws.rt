//! Laws of runs. Each law's function does nothing.
ghost use Rattle.ap_laws.specs.Origins.{OpeningHoldsAgreements, RunHoldsAgreements, FromAnyReadings, FromTheOpening, SomeIsPassedUp};
ghost use Rattle.ap_laws.specs.Alongside.{RunsLeaveSameStarts, LinkRunsLeaveSameStarts};
ghost use Rattle.ap_laws.specs.InOrder.{TellsOne, GoesOnInOrder, EndsInOrder, DropsSilently, SomeIsPassedInOrder};
ghost use Rattle.ap_laws.specs.Histories.{RunsAreRead, ReadingsServe, ReadingsGoOn, RunsAreHistories};
ghost use Rattle.ap_laws.specs.Appending.{RunsAppend, LeadsAppend, HistoriesMeet};
ghost use Rattle.ap_laws.specs.Asking.{StepsAskOnce, ListsAsks};
ghost use Rattle.ap_laws.specs.Headline.{RunsHold, EventsHold, AccessPointsHold, WindowsStandApart, LinkWindowsStandApart};
ghost use Rattle.ap_laws.specs.Identifiers.{OpeningHoldsOnce, RunHoldsOnce, AccessPointHoldsOnce};

use ap_model::Judge;

/// The link's half of the main theorem, for any judge. If the entries of shards so far are runs
/// from the opening, an event at one shard or a list of events at eight leads only to entries that
/// extend these to runs from the opening. So the source of each frame that is passed up was
/// associated without interruption since the frame arrived; at each moment exactly the accepted
/// numbers below its window's start have been passed up of each agreement, once each, in increasing
/// order, and all that it accepted once it ends or is replaced; no two stations hold one
/// identifier; and no verdict on data moves a window.
///
/// Of what it is made: all that holds of a shard's entries if they are a run from the opening. Runs one after another form a
/// run, of a shard, and of eight with a judge; if each of eight shards has a history, there are eight histories together. A
/// step asks for at most one verdict, on the received frame, with the hook and the context of its kind, and a judge's list
/// grows by exactly the queries that a contract names.
pub fn link_law<J: Judge>()
    ensures access_point { AccessPointsHold J.gives }
    ensures shard { EventsHold J.gives }
    ensures run { RunsHold }
    ensures windows { LinkWindowsStandApart }
    ensures windows_of_a_shard { WindowsStandApart }
    ensures appended { RunsAppend }
    ensures appended_with_judge { LeadsAppend J.gives }
    ensures histories { HistoriesMeet }
    ensures asked_once { StepsAskOnce }
    ensures listed { ListsAsks J.asks J.gives }
{}

/// A verdict on data never moves a window (IEEE 802.11-2016, 10.24.7.6). Take two runs over the
/// same events from the same readings, for which `HoldsOnce` and `HoldsAgreements` hold. If they
/// agree in all verdicts except those on data, they leave the same agreements with the same window
/// starts: in a shard, and in a whole access point.
pub fn window_law()
    ensures shard { RunsLeaveSameStarts }
    ensures access_point { LinkRunsLeaveSameStarts }
{}

/// What the history of a run says, part by part.
///
/// - Identifiers. No two stations of an access point hold one association identifier (IEEE
///   802.11-2016, 9.4.1.8). In the opening of a shard none is held; every run keeps that none is
///   held twice; and the identifiers of different shards differ.
/// - Origins. Data that is passed up came in a frame whose source was associated when it arrived
///   and before each entry since (IEEE 802.11-2016, 11.3), and a verdict let it through with its
///   mark. If a run starts from readings for which `HoldsAgreements` holds, the data may have been
///   held already; then its source was associated all the time. `HoldsAgreements` holds in the
///   opening, and every run keeps it. There is a run in which data is passed up.
/// - Order. A history describes at most one agreement per station and TID. Since it was opened,
///   exactly its accepted numbers below its window's start were passed up, once each, in increasing
///   order of whole numbers; when it ends or is replaced, all that it accepted (IEEE 802.11-2016,
///   10.24.7.6.1). If an exchange of the station discards it, that entry passes up nothing of it.
///   There is a run in which an agreement passes data up.
/// - Readings. The readings that a run leaves are those of its history: each station's standing
///   follows from its exchanges (IEEE 802.11-2016, 11.3), and each agreement is what the history
///   describes. The same entries follow all readings of one history, and lead to readings of the
///   longer history. So a list of entries is a run exactly if each follows those before it.
pub fn history_law()
    ensures opening_identifiers { OpeningHoldsOnce }
    ensures kept_identifiers { RunHoldsOnce }
    ensures identifiers { AccessPointHoldsOnce }
    ensures opening_agreements { OpeningHoldsAgreements }
    ensures kept_agreements { RunHoldsAgreements }
    ensures origin_from_readings { FromAnyReadings }
    ensures origin { FromTheOpening }
    ensures some_origin { SomeIsPassedUp }
    ensures one_agreement { TellsOne }
    ensures order { GoesOnInOrder }
    ensures order_at_end { EndsInOrder }
    ensures dropped { DropsSilently }
    ensures some_order { SomeIsPassedInOrder }
    ensures readings { RunsAreRead }
    ensures steps { ReadingsServe }
    ensures going_on { ReadingsGoOn }
    ensures runs { RunsAreHistories }
{}
