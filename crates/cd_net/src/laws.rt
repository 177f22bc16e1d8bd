//! What holds of all packets.
ghost use Rattle.cd_net.specs.Items.{SaysOneThing};
ghost use Rattle.cd_net.specs.Packet.{IsCutInOneWay};
ghost use Rattle.cd_value.specs.declared.data.DataSet.{DataSet};
ghost use Rattle.std.specs.Prelude.{List, ℕ};

/// Each list of bytes, whatever it has, is cut into parts up to an end, and in one way alone.
pub fn each_packet_is_cut_in_one_way()
    ensures { (bytes : List ℕ) → IsCutInOneWay bytes }
{}

/// Each list of bytes, whatever it has, says one thing under the known types and a global interval,
/// also where `items` lacks memory.
pub fn each_packet_says_one_thing()
    ensures { (types : List DataSet) (interval : ℕ) (bytes : List ℕ) →
        SaysOneThing types interval bytes }
{}
