//! The law of joins. It is the contract of a function that does nothing.
ghost use Rattle.std.specs.Prelude.{◌≡◌, ◌<◌, ◌^◌};
ghost use Rattle.aes128.specs.Cipher.{IsBlock};
ghost use Rattle.frame_crypt.specs.Joins.{opened_accept, with_mic};
ghost use Rattle.join_server.specs.declared.ask.JoinAsk.{JoinAsk};
ghost use Rattle.join_server.specs.declared.state.JoinState.{JoinState};
ghost use Rattle.join_server.specs.Join.{accept_fields, grant_of};

/// The device opens a granted accept by encrypting it under its AppKey. It finds the fields of the
/// grant and their MIC (TS001-1.0.4 §6.2.6).
pub fn the_device_opens_its_accept()
    ensures { (state : JoinState) (ask : JoinAsk) → IsBlock state.app_key.0
        → ask.dl_settings < 2 ^ 8 → ask.rx_delay < 2 ^ 8
        → opened_accept state.app_key.0 (grant_of state ask).accept
        ≡ with_mic state.app_key.0 (accept_fields (grant_of state ask).join_nonce ask) }
{
    frame_crypt::laws::a_sealed_accept_is_opened();
}
