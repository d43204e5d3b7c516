ghost use Rattle.std.specs.Prelude.{◌<◌, ◌≤◌};
ghost use Rattle.bayou_base.specs.declared.limits.TheConstants.{MAX_WRITES, SERVERS};

use bayou_base::ServerId;

/// Which server it is, among how many, and how many Writes it may hold.
#[derive(Clone, Copy, Debug)]
pub struct Role {
    pub id: ServerId,
    pub count: u8,
    pub limit: u32,
    pub ghost known: { id.index < count },
    pub ghost count_in_range: { count ≤ SERVERS },
    pub ghost limit_in_range: { limit ≤ MAX_WRITES },
}
